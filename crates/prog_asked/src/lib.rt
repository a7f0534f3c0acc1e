// What the words on a command line ask for: a choice as a byte, and the fill and the page size of the programs that lay out a file.
#![tactic(auto)]

ghost use Rattle.std.specs.Prelude.{◌≡◌, min};
ghost use Rattle.prog_asked.specs.Asked.{AskedBy};

use std::rt::Env;

// A layout's text is asked for: with which fill, and with which page size, if any.
#[derive(Clone, Copy)]
pub struct Asked {
    pub fill: u8,
    pub page: Option<u32>,
}

// A choice, a kind or a format that no byte holds is as unknown as 255.
pub fn choice(n: u32) -> u8
    ensures { result ≡ min n 255 }
{
    n.min(255) as u8
}

// `[FILL [PAGE]]`: FILL is the fill's choice, 0 where it is not given; PAGE the page size in bits of a device with pages. Nothing is asked for where an
// argument is no decimal number, or where there are more.
pub fn layout_asked(rt: &impl Env) -> Option<Asked>
    ensures { AskedBy result }
{
    let count = prog_args::arg_count(rt, 4);
    if count > 3 {
        return None;
    }
    if count < 2 {
        return Some(Asked {
            fill: 0,
            page: None,
        });
    }
    let fill = prog_args::number_at(rt, 1)?;
    if count < 3 {
        return Some(Asked {
            fill: choice(fill),
            page: None,
        });
    }
    let page = prog_args::number_at(rt, 2)?;
    Some(Asked {
        fill: choice(fill),
        page: Some(page),
    })
}
