//! One of many that share a world: it takes a turn for each call.

ghost use Rattle.std.specs.Prelude.{◌≡◌, None};
ghost use Rattle.doc_value.specs.Documents.{IsSchema};
ghost use Rattle.turn_lock.specs.Passes.{IsOf, IsIdle, places};
ghost use Rattle.shared_gate.specs.Sharing.{IsHome};

use index_config::IndexConfig;
use turn_lock::{HasHistory, Pass, TurnLock};

mod calls;

/// One of many that share a world.
#[derive(Drop)]
pub struct Shared<'a, R, V: HasHistory> {
    rt: &'a R,
    lock: &'a TurnLock<V>,
    config: &'a IndexConfig,
    pass: Pass<V>,
    // How many bytes were fetched through it.
    fetched: u128,
    // The place of its first call, on which all of its calls rest.
    home: Option<u64>,
    pub ghost of_lock: { IsOf lock.now pass },
    pub ghost idle: { IsIdle pass },
    pub ghost homed: { IsHome home (places pass) },
    pub ghost formed: { ∥ IsSchema config.now.schema ∥₁ },
}

impl<'a, R, V: HasHistory> Shared<'a, R, V> {
    /// One that has made no call yet. `config` is the configuration of the world's index.
    pub fn over(
        rt: &'a R,
        lock: &'a TurnLock<V>,
        config: &'a IndexConfig,
        pass: Pass<V>,
    ) -> Shared<'a, R, V>
        requires pass { IsOf lock.now pass × IsIdle pass }
        requires formed { ∥ IsSchema config.now.schema ∥₁ }
        ensures { (result.lock.now ≡ lock.entry.now) × (result.config.now ≡ config.entry.now) × (result.pass ≡ pass) × (result.home ≡ None) }
    {
        Shared {
            rt,
            lock,
            config,
            pass,
            fetched: 0,
            home: None,
        }
    }

    /// Its pass, which may be joined to another.
    pub fn into_pass(self) -> Pass<V>
        ensures { result ≡ self.entry.pass }
    {
        let Shared { pass, .. } = self;
        pass
    }
}
