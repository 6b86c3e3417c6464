// Least times, the index, and guided roads, on depots and days that are made at random.
mod changes;
mod guiding;
mod laid_rows;
mod layings;
mod least_times;
mod lists;
mod loadings;
mod rounds;

pub(crate) use rounds::compare_round;
