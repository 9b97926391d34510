// The call sheet: reads standard input, writes standard output (document 01, 'The call sheet'). Its
// memory is of fixed size, whatever the input's length.
#![tactic(auto)]

use sheet_stream::play;

fn main(rt: HostRuntime) {
    let mut input = rt.stdin();
    let mut output = rt.stdout();
    // Where a write fails, nothing is left to be told.
    let _ = play(&mut input, &mut output);
}
