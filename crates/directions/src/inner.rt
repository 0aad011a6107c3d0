// The constant tables, read by direction.
ghost use Rattle.std.specs.Prelude.{◌≡◌, ◌<◌};
ghost use Rattle.directions.specs.Directions.{opposite, step_x, step_y};

const OPPOSITES: [usize; 4] = [2, 3, 0, 1];

const STEPS_X: [i8; 4] = [0, 1, 0, -1];

const STEPS_Y: [i8; 4] = [-1, 0, 1, 0];

// The direction that leads back.
pub fn opposite_of(d: usize) -> usize
    requires { d < 4 }
    ensures { result ≡ opposite d }
{
    OPPOSITES[d]
}

// What a step adds to the column.
pub fn step_x(d: usize) -> i8
    requires { d < 4 }
    ensures { result ≡ step_x d }
{
    STEPS_X[d]
}

// What a step adds to the row.
pub fn step_y(d: usize) -> i8
    requires { d < 4 }
    ensures { result ≡ step_y d }
{
    STEPS_Y[d]
}
