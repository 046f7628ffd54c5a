ghost use Rattle.std.specs.Prelude.{◌≡◌};
ghost use Rattle.turn_lock.specs.Passes.{IsOf, IsIdle, parts};

use std::alloc::AllocError;
use std::sync::Wait;
use std::test::*;
use std::thread;
use turn_lock::{HasHistory, Pass, TurnLock};

const TURNS: u64 = 1000;

#[derive(Clone, Copy)]
struct Note {
    caller: u64,
    number: u64,
}

#[derive(Drop)]
struct Notes {
    made: Vec<Note>,
}

impl HasHistory for Notes {
    type Start = ();

    type Event = Note;

    ghost start = { λ _. tt };

    ghost history = { λ notes. notes.made.items };

    ghost rests = { λ place _. place };

    ghost stands = { λ _. Unit {0} };

    fn events(&self) -> u64 {
        self.made.len() as u64
    }
}

// Takes a turn and notes it, unless there is no memory.
fn note_one<R: Wait>(
    rt: &R,
    lock: &TurnLock<Notes>,
    pass: &mut Pass<Notes>,
    note: Note,
) -> Result<(), AllocError>
    requires { IsOf lock.now pass.old × IsIdle pass.old }
    ensures { IsOf lock.now pass.new × IsIdle pass.new × (parts pass.new ≡ parts pass.old) }
{
    let mut turn = lock.turn(rt, pass);
    let added = turn.value.made.push(note);
    lock.done(turn, pass);
    match added {
        Ok(()) => Ok(()),
        Err(_) => Err(AllocError),
    }
}

// Takes a thousand turns, and says whether each was noted.
fn take_turns<R: Wait>(
    rt: &R,
    lock: &TurnLock<Notes>,
    mut pass: Pass<Notes>,
    caller: u64,
) -> (Pass<Notes>, bool)
    requires { IsOf lock.now pass × IsIdle pass }
    ensures { IsOf lock.now result.0 × IsIdle result.0 × (parts result.0 ≡ parts pass) }
{
    let mut all = true;
    for number in 0..TURNS {
        if note_one(rt, lock, &mut pass, Note { caller, number }).is_err() {
            all = false;
        }
    }
    (pass, all)
}

#[test]
fn two_threads_take_a_thousand_turns_each(rt: HostRuntime) -> Result<(), Fail> {
    let vacant = Notes {
        made: Vec::new(rt.alloc()),
    };
    let Ok((lock, mut first)) = TurnLock::build(rt.alloc(), vacant, 2) else {
        return Err(AllocError.into());
    };
    let second = lock.split(&mut first);
    let ((mut first, one), (second, two)) = thread::join(
        &rt,
        || -> (Pass<Notes>, bool)
            requires { IsOf lock first × IsIdle first }
            ensures { IsOf lock result.0 × IsIdle result.0 × (parts result.0 ≡ parts first) }
        { take_turns(&rt, &lock, first, 1) },
        || -> (Pass<Notes>, bool)
            requires { IsOf lock second × IsIdle second }
            ensures { IsOf lock result.0 × IsIdle result.0 × (parts result.0 ≡ parts second) }
        { take_turns(&rt, &lock, second, 2) },
    );
    lock.join(&mut first, second);
    let notes = lock.close(first);
    assert!(rt; one && two && notes.made.len() == 2000);
    for caller in [1, 2] {
        let mut numbers = notes.made.iter().filter(|note| note.caller == caller);
        for number in 0..TURNS {
            assert!(rt; numbers.next().is_some_and(|note| note.number == number));
        }
        assert!(rt; numbers.next().is_none());
    }
    Ok(())
}

#[test]
fn the_last_event_is_read_back(rt: HostRuntime) -> Result<(), Fail> {
    let mut notes = Notes {
        made: Vec::new(rt.alloc()),
    };
    notes.made.push(Note {
        caller: 7,
        number: 70,
    })?;
    let (lock, mut pass) = match TurnLock::build(rt.alloc(), notes, 1) {
        Ok(built) => built,
        Err(unbuilt) => {
            assert!(rt; unbuilt.value.made.len() == 1 && unbuilt.value.made[0].number == 70);
            return Ok(());
        }
    };
    let note = Note {
        caller: 8,
        number: 80,
    };
    let noted = note_one(&rt, &lock, &mut pass, note).is_ok();
    let notes = lock.close(pass);
    let last = if noted { 80 } else { 70 };
    assert!(rt; notes.made.last().is_some_and(|note| note.number == last));
    assert_eq!(rt; notes.made.len(), if noted { 2 } else { 1 });
    Ok(())
}
