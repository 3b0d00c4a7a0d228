// Runs edge values through every public function of `number` and of `table`, and writes a line for each case.
// What it must write is the file stdout, which tools/ground.py makes by a model of its own.
#![tactic(auto)]

mod compare;
mod edges;
mod form;
mod keep;
mod print;
mod refuse;
mod space;
mod spell;
mod store;
mod whole;

use number::halves::Width;

fn main(rt: HostRuntime) {
    compare::orders(&rt);
    spell::values(&rt, Width::Bits32, 34);
    spell::values(&rt, Width::Bits128, 128);
    spell::leftovers(&rt);
    spell::parts(&rt);
    keep::rows(&rt, Width::Bits32);
    keep::rows(&rt, Width::Bits128);
    keep::fills(&rt, Width::Bits32);
    keep::fills(&rt, Width::Bits128);
    form::pairs(&rt, Width::Bits32);
    form::pairs(&rt, Width::Bits128);
    form::mixes(&rt);
    refuse::numbers(&rt);
    space::edges(&rt);
    store::rows_of_a_run(&rt);
    whole::tables_or_not(&rt);
}
