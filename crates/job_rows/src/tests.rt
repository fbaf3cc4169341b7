mod jobs;
mod narrow;
mod pairs;
