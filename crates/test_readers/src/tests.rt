mod actions;
mod causes;
mod checks;
mod entries;
mod lists;
mod places;
mod values;
mod words;
