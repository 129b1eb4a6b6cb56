//! The members of lists in order of file and line, where they lie.
ghost use Rattle.std.specs.Prelude.{◌≡◌, map, IfOk};
ghost use Rattle.std.specs.List.{All};
ghost use Rattle.scq_collect.specs.Exports.{IsMerged};
ghost use Rattle.scq_stages.specs.Output.{finished_in, position_of_finished};

use crate::Finished;
use scq_word::NoMemory;
use std::alloc::Global;

/// A member, and before it its file and line, so that a sort looks at no member itself.
type Placed<'a> = (u32, u32, &'a Finished);

/// The members of all lists, in order of file and line. They stay where they lie.
pub fn ordered<'a>(alloc: Global, lists: &'a [Vec<Finished>]) -> Result<Vec<Placed<'a>>, NoMemory>
    ensures { IfOk result (λ all.
        IsMerged position_of_finished (finished_in lists.entry.now) (map (λ m. m.2.now)
        all.items)) }
{
    let mut members = members_of(alloc, lists)?;
    members.sort_by_key(|(file, line, _)| (*file, *line))?;
    Ok(members)
}

/// The members of all lists, one list behind the other.
fn members_of<'a>(alloc: Global, lists: &'a [Vec<Finished>]) -> Result<Vec<Placed<'a>>, NoMemory>
    ensures members { IfOk result (λ members.
        map (λ m. m.2.now) members.items ≡ finished_in lists.entry.now) }
    ensures placed { IfOk result (λ members.
        All (λ m. (m.0, m.1, 1) ≡ position_of_finished m.2.now) members.items) }
{
    let mut members = Vec::new(alloc);
    'lists: for list in lists {
        'members: for member in list {
            members.push((member.file, member.line, member))?;
        }
    }
    Ok(members)
}
