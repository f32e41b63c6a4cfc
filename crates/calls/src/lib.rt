// What the static library's calls return: the definitions and their laws, and a result put together as one number. The crates named after
// what they are called on (schedulecalls, textcalls, imagecalls, recordcalls, linecalls, historycalls, probecalls) do the work; library gives them C's names.

#![tactic(auto)]

pub mod packing;
