// The curve program: reads family.phf and path.u16 in the current folder, and prints the table of the curve, or a refusal.
// Everything between the bytes read and the bytes written is `render`, whose promise says which bytes they are.
#![tactic(auto)]

mod buffer;
mod input;
mod output;
mod text;

use input::{read_family, read_path};
use output::{print, render};

fn main(rt: HostRuntime) {
    print(&rt, &render(&read_family(&rt), &read_path(&rt)));
}
