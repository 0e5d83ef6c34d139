// The file of a replica's book: a line for the book, one for the names of the columns, and one for each page.
// Here live the text of a number, of a page and of a book, and the check that the file fits.
// What the pages say is not judged here.
#![tactic(auto)]

mod file;
mod lines;
mod pages;
mod sink;
mod text;

pub use file::print;
