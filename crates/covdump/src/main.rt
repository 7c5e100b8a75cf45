// Prints a coverage table whose bytes come from standard input: its format, its glyphs, what the list codec
// says of the bytes, and what each codec writes for the glyphs; or that the bytes mean no glyphs.
#![tactic(auto)]

use cover_text::coverage_text;
use std::io;
use std::io::Read;

fn main(rt: HostRuntime) -> io::Result<()> {
    let mut bytes = Vec::new(rt.alloc());
    rt.stdin().read_to_end(&mut bytes)?;
    let text = coverage_text(rt.alloc(), &bytes)?;
    rt.print(text)
}
