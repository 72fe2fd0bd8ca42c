mod flow;
mod outside;
mod rows;
mod words;
