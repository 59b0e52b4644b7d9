// The call runner: a script on standard input, and what its calls print on standard output.
#![tactic(auto)]

ghost use Rattle.std.specs.Prelude.{◌≡◌, Bool};
ghost use Rattle.model.specs.Store.{empty_store};
ghost use Rattle.console.specs.Turns.{Ran};

use std::io::{Read, Write};

// The store is empty at first.
fn main(rt: HostRuntime) {
    let mut store = [0u8; 41088];
    start(
        &mut rt.stdin(),
        &mut rt.stdout(),
        &mut rt.stderr(),
        &mut store,
    );
}

// Carries out the script from the empty store; where that is not done to the end, says so.
fn start<R: Read, W: Write, E: Write>(
    reader: &mut R,
    writer: &mut W,
    errors: &mut E,
    store: &mut [u8],
)
    requires { store.old ≡ empty_store }
    ensures { (whole : Bool) × Ran whole empty_store store.new }
{
    if console::run(reader, writer, store).is_err() {
        let _ = errors.write_all(b"the script was not carried out to its end\n");
    }
}
