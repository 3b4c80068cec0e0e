//! Searches in a session: what waits behind the open search prompt.
mod waiting;
