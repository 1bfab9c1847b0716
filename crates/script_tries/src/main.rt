//! Rows over scripts of a run: what is read of each, or its refusal. Standard input has the rows, and `stdout` is the
//! table of what must be given.
//!
//! A row is `recipe <lines>`, whose script is read, and which stands above the lines of the rows below it;
//! `with <lines>`, the script of that recipe with these lines; `each <n> <lines>`, the same for each number up to n in
//! place of `%`, of which only what goes wrong is printed; `many <n> <line>`, a script of n such lines, the highest
//! number first; `behind <hex>`, the bytes that lie behind the lines of rows `text <lines>` below it; or
//! `bytes <hex>`, any bytes. `|` stands for a line feed.
//! `script_tries run` and `script_tries replay` read one script from standard input, and print the microseconds that
//! this took, for `bench/scripts`; they promise no time.
//!
//! Layer: at the top of `run_script` and `recipe`; nothing stands on it.
#![tactic(auto)]

mod rows;
mod show;
mod times;

use std::{env, io};
use ucm_ports::StdSource;

fn main(rt: HostRuntime) -> io::Result<()> {
    let word = env::args(&rt)?.skip(1).next();
    let mut source = StdSource::new(rt.stdin());
    match word {
        Some(command) => times::print(&rt, &mut source, command.as_str() == "replay"),
        None => rows::print(&rt, &mut source),
    }
}
