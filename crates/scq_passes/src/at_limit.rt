use scq_queue::Held;
use scq_word::Buffer;

/// Why a worker leaves at once: a ticket at or past the limit was drawn. It has the value that came
/// back, where there is one.
pub struct AtLimit<B: Buffer> {
    pub held: Option<Held<B>>,
}
