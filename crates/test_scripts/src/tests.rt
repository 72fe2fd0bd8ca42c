mod accepted;
mod fields;
mod limits;
mod refusals;
