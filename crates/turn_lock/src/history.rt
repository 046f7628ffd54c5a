//! A value that stands for a history.
ghost use Rattle.std.specs.Prelude.{◌≡◌, ℕ, List, length};

/// A value that carries what its history began with and the events since then.
pub trait HasHistory {
    /// What the history began with. Contracts alone speak of it, and no value of it is made.
    type Start;

    /// What happened once. Contracts alone speak of it, and no value of it is made.
    type Event;

    ghost start: { Self → Self.Start };

    // The events, the first one first. The place of an event counts from 0.
    ghost history: { Self → List Self.Event };

    // For an event and its place: the place of the event on which it rests, which is its own or that of an event whose effect it uses.
    ghost rests: { ℕ → Self.Event → ℕ };

    // Whether the value stands for its start and its history. The lock takes and lends no other value.
    ghost stands: { Self → Type 0 };

    /// How many events the history has.
    fn events(&self) -> u64
        requires { stands self.now }
        ensures { result ≡ length (history self.now) };
}
