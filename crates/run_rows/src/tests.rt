mod fit;
mod large;
mod params;
mod rows;
