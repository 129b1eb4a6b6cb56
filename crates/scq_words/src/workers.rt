ghost use Rattle.std.specs.Prelude.{◌≡◌, ◌≤◌, ◌^◌, IsSome};
ghost use Rattle.scq_word.specs.Exports.{most_run_order};
ghost use Rattle.scq_words.specs.Asked.{workers_or};
ghost use Rattle.scq_words.specs.Numbers.{number_or, text_in};

/// How many workers there are where none are given, and there are as many buffers.
const WORKERS: u32 = 4;

/// How many workers there are: as many as are given; else 4, but no more than buffers.
pub fn workers_of(text: Option<&str>, given: u32, order: u32) -> u32
    requires small { order ≤ most_run_order }
    requires read { given ≡ number_or 0 (text_in text) }
    requires within { IsSome text → (1 ≤ given) × (given ≤ 4096) }
    ensures value { result ≡ workers_or order (text_in text.entry) }
    ensures within { (1 ≤ result) × (result ≤ 4096) }
{
    if text.is_none() {
        return WORKERS.min(buffers_of(order));
    }
    given
}

/// How many buffers there are: `2^order`.
fn buffers_of(order: u32) -> u32
    requires { order ≤ most_run_order }
    ensures value { result ≡ 2 ^ order }
    ensures some { 1 ≤ result }
{
    1 << order
}
