// The layout that sifts lead to. Its crossings are counted neither before nor after them: what they
// save is enough.
ghost use Rattle.std.specs.Prelude.{◌≡◌};
ghost use Rattle.sifting.specs.Layouts.{relaid as relaid_layout};

use model::Layout;

// Another order, and the count less what it saves, modulo 2^64, whatever count came in.
pub(crate) fn relaid(l: Layout, order: [u8; 64], saving: u64) -> Layout
    ensures { result ≡ relaid_layout l order saving }
{
    Layout {
        order,
        count: l.count.wrapping_sub(saving),
        ..l
    }
}
