// The bench: a range from the released image or the overlay, and where the two differ.
ghost use Rattle.says.specs.Overlay.{RangeSays, RunsSay};

use c_answers::{DkCount, DkOverlay};

// Which of the two images the `count` bytes from byte `first` on come from.
#[unsafe(no_mangle)]
pub extern "C" fn dk_overlay_range(
    overlay: &[u8],
    released: &[u8],
    offsets: &[u64],
    sizes: &[u64],
    first: u64,
    count: u64,
) -> DkOverlay
    ensures { RangeSays overlay.now released.now offsets.now sizes.now first count result }
{
    denkumari::dk_overlay_range(overlay, released, offsets, sizes, first, count)
}

// The runs of covered bytes, inside both images, that differ: first byte and count of bytes of each.
#[unsafe(no_mangle)]
pub extern "C" fn dk_overlay_runs(
    overlay: &[u8],
    released: &[u8],
    offsets: &[u64],
    sizes: &[u64],
    firsts: &mut [u64],
    counts: &mut [u64],
) -> DkCount
    ensures { RunsSay overlay.now released.now offsets.now sizes.now
        firsts.old counts.old (record { answer = result; firsts = firsts.new; counts = counts.new }) }
{
    denkumari::dk_overlay_runs(overlay, released, offsets, sizes, firsts, counts)
}
