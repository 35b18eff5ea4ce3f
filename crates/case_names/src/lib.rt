#![tactic(auto)]
// The files that a test program reads, case000, case001, ..: their names, and how they are opened.
ghost use Rattle.std.specs.Prelude.{◌≡◌};
ghost use Rattle.case_names.specs.Names.{case_name};

use std::rt::Files;
use std::{fs, str};

// A number past 999 goes by its last three digits.
#[tactic(auto, unfolding(crate::specs::Names::case_name))]
pub fn case_name(i: u32) -> [u8; 7]
    ensures { result ≡ case_name i }
{
    let mut name = *b"case000";
    name[4] = (48 + i / 100 % 10) as u8;
    name[5] = (48 + i / 10 % 10) as u8;
    name[6] = (48 + i % 10) as u8;
    name
}

// The file of case i, to be read; none where it cannot be opened.
pub fn open_case<R: Files>(rt: &R, i: u32) -> Option<R::File> {
    let name = case_name(i);
    let path = str::from_utf8(&name).unwrap();
    fs::open(rt, path).ok()
}
