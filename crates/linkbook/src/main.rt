// `linkbook`: reads a book from standard input, and prints its report or one refusal line.
#![tactic(auto)]

use anyhow::anyhow;
use checker::linkbook::linkbook;
use std::io::{Read, Write};

// One byte more than a book may have: enough to tell that one is too long.
const LIMIT: u64 = 65537;

fn main(rt: HostRuntime) -> anyhow::Result<()> {
    let mut text = Vec::new(rt.alloc());
    rt.stdin().take(LIMIT).read_to_end(&mut text)?;
    let output = linkbook(rt.alloc(), &text).map_err(|_| anyhow!("no memory"))?;
    rt.stdout().write_all(&output)?;
    Ok(())
}
