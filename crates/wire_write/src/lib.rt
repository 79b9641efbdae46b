// Writing reports into the caller's buffer. Nothing is allocated, and nothing is copied but the bytes that go into it.
//
// write.rt     a report that was read, and a draft: a report from its parts
// rewrite.rt   reading and writing again, which gives the very bytes that came in
//
// specs/Putting says what a writing answers and leaves in the buffer, specs/Rewriting the same of a rewriting. The form of a
// report as bytes is wire's.

#![tactic(auto)]

pub mod rewrite;
pub mod write;
