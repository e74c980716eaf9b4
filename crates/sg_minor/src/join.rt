ghost use Rattle.sg_minor.specs.Joined.{JoinLaw};

use sg_heap::front_law;

/// The parts of a pause meet: tags of the pinned objects, a round of copying, and the sweep together trace and picture the
/// heap before it. It does nothing; its contract is the law.
pub fn join_law()
    ensures { JoinLaw }
{
    front_law();
}
