//! Which names are that of standard input.

ghost use Rattle.std.specs.Prelude.{◌≡◌, ◌≤◌, length};
ghost use Rattle.sva_command.specs.Command.{texts};
ghost use Rattle.sva_cli.specs.Inputs as inputs;

use sva_script::is;

/// Whether a name is that of standard input, `-`.
pub fn is_input(name: &str) -> bool
    ensures { result ≡ inputs.is_input name.now }
{
    is(name.as_bytes(), b"-")
}

/// 1 where it is so.
fn one_if(so: bool) -> usize
    ensures { result ≡ inputs.one_if so }
{
    if so { 1 } else { 0 }
}

/// How many of the names are.
pub fn inputs_in(names: &[String]) -> usize
    ensures { result ≡ inputs.inputs_in (texts names.now) }
{
    let mut count = 0;
    for place in 0..names.len() {
        count += one_if(is_input(names[place].as_str()));
    }
    count
}
