mod counter;
mod workers;
