//! Texts cut at each place, terminals of each size, and classifiers and conditions that answer what they like.
mod odd;
