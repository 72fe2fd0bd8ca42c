mod boards;
mod script_faults;
mod scripts;
mod sessions;
mod until_no_target;
