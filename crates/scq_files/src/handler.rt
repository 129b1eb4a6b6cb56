//! Who handles the messages of files.
ghost use Rattle.std.specs.Prelude.{◌≡◌, Bool, List, [], ◌∷◌, ◌++◌, IfErr, OnOk};
ghost use Rattle.scq_frames.specs.declared.message.Message.{Message as TheMessage};

use scq_frames::Message;

/// Who handles messages one by one. It makes its calls with a `C`, and changes a `T` beside itself.
pub trait Handler<C, T> {
    /// What comes back where it stops.
    type Stop;

    /// Whether it may go on.
    ghost ready: { C → T → Self → Type 0 };

    /// The messages that it takes.
    ghost takes: { C → TheMessage → Type 0 };

    /// What these messages, in order, made of it and of what it changes, where it goes on.
    ghost handled: { C → List TheMessage → T → Self → T → Self → Type 0 };

    /// The same where it stopped at the last of them.
    ghost stopped: { C → List TheMessage → T → Self → T → Self → Self.Stop → Type 0 };

    /// What it put off of a message, where it goes on.
    ghost puts_off: { C → TheMessage → Self → Self → Type 0 };

    /// Whether it wanted memory.
    ghost wanted: { Self → Bool };

    /// Whether it has put nothing off.
    ghost rested: { Self → Type 0 };

    /// Handles a message.
    fn handle(&mut self, with: &C, beside: &mut T, message: &Message) -> Result<(), Self::Stop>
        requires ready { ready with.now beside.old self.old }
        requires takes { takes with.now message.now }
        ensures handled { OnOk result
            (handled with.now (message.now ∷ []) beside.old self.old beside.new self.new) }
        ensures put_off { OnOk result (puts_off with.now message.now self.old self.new) }
        ensures stopped { IfErr result
            (stopped with.now (message.now ∷ []) beside.old self.old beside.new self.new) };

    /// Does what it has put off, since it may have to wait for its next message. It handles none.
    fn pause(&mut self, with: &C, beside: &mut T) -> Result<(), Self::Stop>
        requires { ready with.now beside.old self.old }
        ensures rested { OnOk result (rested self.new) }
        ensures handled { OnOk result
            (handled with.now [] beside.old self.old beside.new self.new) }
        ensures stopped { IfErr result
            (stopped with.now [] beside.old self.old beside.new self.new) };

    /// Whether it wanted memory.
    fn starved(&self) -> bool
        ensures { result ≡ wanted self.now };

    ghost none_handled: { (c : C) (t : T) (h : Self) → ready c t h → handled c [] t h t h };

    ghost stays_ready: { (c : C) (ms : List TheMessage) (t s : T) (h i : Self)
        → ready c t h → handled c ms t h s i → ready c s i };

    ghost more_handled: { (c : C) (ms ns : List TheMessage) (t s u : T) (h i j : Self)
        → handled c ms t h s i → handled c ns s i u j → handled c (ms ++ ns) t h u j };

    ghost then_stopped: { (c : C) (ms ns : List TheMessage) (t s u : T) (h i j : Self)
        (stop : Self.Stop)
        → handled c ms t h s i → stopped c ns s i u j stop → stopped c (ms ++ ns) t h u j stop };
}
