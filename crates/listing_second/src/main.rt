// Prints the preset book of the second edition on standard input.
#![tactic(auto)]

use programs::Edition;

fn main(rt: HostRuntime) {
    programs::list(&rt, Edition::Second);
}
