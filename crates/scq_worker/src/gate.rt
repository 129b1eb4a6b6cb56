/// Where a worker stands when it calls the gate.
#[derive(Clone, Copy, Debug, PartialEq, Eq)]
pub enum Point {
    /// It has sent a part of a message.
    AfterSend,
    /// It is about to take one.
    BeforeTake,
    /// It is about to leave.
    BeforeLeave,
}

/// What workers call at each point, so that rows can make their threads meet there: a gate may hold
/// a worker back. It has no meaning for what is answered, and nothing to do with the gate of the
/// queue's rings, the word that counts those who haven't retired.
pub trait Gate {
    fn at(&self, worker: u32, point: Point);
}

/// The gate that does nothing.
pub struct FreeGate;

impl Gate for FreeGate {
    fn at(&self, _worker: u32, _point: Point) {}
}
