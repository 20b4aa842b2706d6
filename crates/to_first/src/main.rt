// Converts the preset book of the second edition on standard input to one of the first.
#![tactic(auto)]

use programs::Edition;

fn main(rt: HostRuntime) {
    programs::convert(&rt, Edition::Second);
}
