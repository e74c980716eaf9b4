ghost use Rattle.sg_los.specs.Laws.{LargeLaw};

use sg_space::placing_law;

/// What taking and freeing pages means for the objects of a sound space. It does nothing.
pub fn large_law()
    ensures { LargeLaw }
{
    placing_law();
}
