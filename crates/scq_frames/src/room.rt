//! The room in which a window's bytes stand: how more of it is made, and how it is read into.
ghost use Rattle.std.specs.Prelude.{◌≡◌, ◌⊎◌, ◌+◌, ◌-◌, ◌*◌, ◌<◌, ◌≤◌, drop, slice_range, vec_len};
ghost use Rattle.std.specs.Prelude.{Ok, IfOk, OnOk, OnErr, IsErr};
ghost use Rattle.scq_outside.specs.Exports.{RoseWhere};
ghost use Rattle.scq_frames.specs.Exports.{CameTo, IsSameBefore};

use scq_outside::{Failed, Source};
use scq_word::NoMemory;

/// Makes room for so many bytes more behind the held ones, which stand from `start` up to `end`.
/// Answers where the held bytes begin then: they move only where that makes room enough. Where the
/// room grows it is to double what is needed, so that a long line is copied a few times and no
/// more.
pub fn make_room(
    room: &mut Vec<u8>,
    start: usize,
    end: usize,
    more: usize,
) -> Result<usize, NoMemory>
    requires ordered { start ≤ end }
    requires within { end ≤ vec_len room.old }
    requires small { more ≤ 4096 }
    ensures held { IfOk result (λ from.
        slice_range room.new.items from (from + (end - start))
        ≡ slice_range room.old.items start end) }
    ensures enough { IfOk result (λ from. from + (end - start) + more ≤ vec_len room.new) }
    ensures grows { OnOk result ((vec_len room.new ≡ vec_len room.old)
        ⊎ (vec_len room.new ≡ (end - start + more) * 2)) }
    ensures needed { OnOk result (vec_len room.old < vec_len room.new
        → vec_len room.old < end - start + more) }
    ensures err { OnErr result (room.new.items ≡ room.old.items) }
{
    let len = room.len();
    if end + more <= len {
        return Ok(start);
    }
    let held = end - start;
    if held + more <= len {
        room.copy_within(start..end, 0);
        return Ok(0);
    }
    room.resize((held + more).saturating_mul(2), 0)?;
    Ok(start)
}

/// Moves so many bytes from one position up to another, over what stands between.
pub fn close_gap(room: &mut Vec<u8>, from: usize, len: usize, to: usize)
    requires up { from ≤ to }
    requires within { to + len ≤ vec_len room.old }
    ensures len { vec_len room.new ≡ vec_len room.old }
    ensures moved { slice_range room.new.items to (to + len)
        ≡ slice_range room.old.items from (from + len) }
    ensures behind { drop (to + len) room.new.items ≡ drop (to + len) room.old.items }
{
    room.copy_within(from..from + len, to);
}

/// Reads at most so many bytes to a position of the room.
pub fn read_at<S: Source>(
    source: &mut S,
    room: &mut Vec<u8>,
    at: usize,
    most: usize,
) -> Result<usize, Failed>
    requires some { 0 < most }
    requires within { at + most ≤ vec_len room.old }
    ensures before { IsSameBefore at room.old.items room.new.items }
    ensures came { IfOk result
        (CameTo at most room.new.items (S.left source.old) (S.left source.new)) }
    ensures unmoved { OnErr result (S.left source.new ≡ S.left source.old) }
    ensures faults { RoseWhere (IsErr result) (S.faults source.old) (S.faults source.new) }
    ensures never_falls { S.faults source.old ≤ S.faults source.new }
    ensures ends { RoseWhere (result ≡ Ok 0) (S.ends source.old) (S.ends source.new) }
{
    source.read(&mut room[at..at + most])
}
