//! Each request for memory refused in turn, at the calls of a register, at a search prompt and for where a query leads.
//! With ample memory each test here shows what the calls do. `tools/refuse_memory.py` runs it again and again, with
//! another request refused each time; then it shows that a refused call changes nothing, and does the same when it is
//! made again.
mod registers;
mod searches;
