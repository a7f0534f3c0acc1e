// A part of an image, the image that a range comes from, where a file's bytes stand, the line at which it is at fault, and why.
ghost use Rattle.std.specs.Prelude.{◌≡◌};
ghost use Rattle.c_answers.specs.Parts.{part_by, overlay_by, extent_told, line_told, reason_told};

use crate::{DkExtent, DkFault, DkOverlay, DkPart, DkReason};
use overlay::Source;
use prelude::Refusal;
use record_extent::Extent;
use record_reason::Why;

// The block of `size` bits from bit `offset` on, in bytes.
pub fn tell_part(verdict: Result<(), Refusal>, offset: u64, size: u64) -> DkPart
    ensures { result ≡ part_by offset size verdict }
{
    match verdict {
        Ok(()) => DkPart {
            refusal: 0,
            start: offset / 8,
            length: size / 8,
        },
        Err(why) => DkPart {
            refusal: prelude::number(why),
            start: 0,
            length: 0,
        },
    }
}

// The `count` bytes from byte `first` on.
pub fn tell_source(source: Result<Source, Refusal>, first: u64, count: u64) -> DkOverlay
    ensures { result ≡ overlay_by first count source }
{
    match source {
        Ok(Source::Overlay) => DkOverlay {
            refusal: 0,
            image: 1,
            start: first,
            length: count,
        },
        Ok(Source::Released) => DkOverlay {
            refusal: 0,
            image: 2,
            start: first,
            length: count,
        },
        Err(why) => DkOverlay {
            refusal: prelude::number(why),
            image: 0,
            start: 0,
            length: 0,
        },
    }
}

pub fn tell_extent(extent: Result<Extent, Refusal>) -> DkExtent
    ensures { result ≡ extent_told extent }
{
    match extent {
        Ok(extent) => DkExtent {
            refusal: 0,
            lowest: extent.lowest,
            end: extent.end,
        },
        Err(why) => DkExtent {
            refusal: prelude::number(why),
            lowest: 0,
            end: 0,
        },
    }
}

pub fn tell_fault(fault: Option<u64>) -> DkFault
    ensures { result ≡ line_told fault }
{
    match fault {
        None => DkFault { fault: 0, line: 0 },
        Some(line) => DkFault { fault: 1, line },
    }
}

pub fn tell_reason(why: Why) -> DkReason
    ensures { result ≡ reason_told why }
{
    DkReason {
        reason: why.reason,
        line: why.line,
        first: why.first,
        second: why.second,
    }
}
