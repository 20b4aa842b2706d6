// Converts the preset book of the first edition on standard input to one of the second.
#![tactic(auto)]

use programs::Edition;

fn main(rt: HostRuntime) {
    programs::convert(&rt, Edition::First);
}
