mod faults;
mod folders;
mod made;
mod many;
mod order;
mod published;
mod rig;
mod texts;
