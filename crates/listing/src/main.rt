// Prints the preset book of the first edition on standard input.
#![tactic(auto)]

use programs::Edition;

fn main(rt: HostRuntime) {
    programs::list(&rt, Edition::First);
}
