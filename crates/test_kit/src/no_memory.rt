//! Calls that take no memory. `./refusal-drill` counts what is allocated between the two lines that name a call and end it: nothing,
//! but for those whose names begin with `control`.

/// Names a call on standard error, just before it is made. One whose name is empty is not counted.
pub fn begin(rt: &impl Eprint, name: &str) {
    if !name.is_empty() {
        let _ = eprintln!(rt; "call: {name}");
    }
}

/// Ends that call.
pub fn end(rt: &impl Eprint, name: &str) {
    if !name.is_empty() {
        let _ = eprintln!(rt; "end");
    }
}
