// The choices of a run, told one by one, for the comparison with the Rust (oracle/) and nothing else: no public call tells them.
// They are made by the run's own steps: what is observed, the pattern that a word chooses there, and that choice laid as a forbid that keeps only the pattern.
// Follows docs/RULES.md, "Run". Its contracts say that the slices stay as each step must find them; what is told is compared, not proved.
#![tactic(auto)]

ghost use Rattle.std.specs.Prelude.{◌≡◌, ◌*◌, ◌≤◌, IfSome, length};
ghost use Rattle.adjacency.specs.Tables.{table};
ghost use Rattle.grid.specs.Grid.{grid};
ghost use Rattle.course.specs.Run.{given};
ghost use Rattle.course.specs.Called.{memory};
ghost use Rattle.run.specs.Stages.{Standing};
ghost use Rattle.trace_c.specs.Going.{Going};

// A choice, and whether the run goes on after it.
#[derive(Clone, Copy, Debug)]
struct Made {
    goes: bool,
    cell: u32,
    pattern: u32,
    entropy: f32,
}

// A cell or a pattern as 32 bits; there are none past them.
fn narrow(x: usize) -> u32 {
    u32::try_from(x).unwrap_or(u32::MAX)
}

// Lays a forbid; whether the run goes on, which it does not where the forbid is not of the grid or empties a cell.
fn lay(
    cell: u32,
    pattern: u32,
    keep: u32,
    count: usize,
    width: usize,
    height: usize,
    mode: usize,
    weights: &[u32],
    offsets: &[u32],
    ids: &[u8],
    noise: &[u32],
    words: &[u32],
    domains: &mut [u64],
    counts: &mut [u8],
    pending: &mut [u32],
    floats: &mut [f32],
    marks: &mut [u8],
) -> bool
    requires { Standing (given (table count offsets.now ids.now) weights.now (grid width height mode) noise.now) (memory domains.old counts.old pending.old floats.old marks.old) }
    ensures { Going (given (table count offsets.now ids.now) weights.now (grid width height mode) noise.now) result (memory domains.new counts.new pending.new floats.new marks.new) }
{
    if domains.len() <= cell as usize {
        return false;
    }
    if count <= pattern as usize {
        return false;
    }
    !run::inner::lay_one(
        cell, pattern, keep, count, width, height, mode, weights, offsets, ids, noise, words,
        domains, counts, pending, floats, marks,
    )
}

// Lays the forbids in order, until one ends the run; whether it goes on.
fn lay_all(
    forbids: &[u32],
    count: usize,
    width: usize,
    height: usize,
    mode: usize,
    weights: &[u32],
    offsets: &[u32],
    ids: &[u8],
    noise: &[u32],
    words: &[u32],
    domains: &mut [u64],
    counts: &mut [u8],
    pending: &mut [u32],
    floats: &mut [f32],
    marks: &mut [u8],
) -> bool
    requires { Standing (given (table count offsets.now ids.now) weights.now (grid width height mode) noise.now) (memory domains.old counts.old pending.old floats.old marks.old) }
    ensures { Going (given (table count offsets.now ids.now) weights.now (grid width height mode) noise.now) result (memory domains.new counts.new pending.new floats.new marks.new) }
{
    for i in 0..forbids.len() / 3 {
        if !lay(
            forbids[3 * i],
            forbids[3 * i + 1],
            forbids[3 * i + 2],
            count,
            width,
            height,
            mode,
            weights,
            offsets,
            ids,
            noise,
            words,
            domains,
            counts,
            pending,
            floats,
            marks,
        ) {
            return false;
        }
    }
    true
}

// Begins the run and lays the forbids; whether the run goes on.
fn start(
    forbids: &[u32],
    count: usize,
    width: usize,
    height: usize,
    mode: usize,
    weights: &[u32],
    offsets: &[u32],
    ids: &[u8],
    noise: &[u32],
    words: &[u32],
    domains: &mut [u64],
    counts: &mut [u8],
    pending: &mut [u32],
    floats: &mut [f32],
    marks: &mut [u8],
) -> bool
    ensures { Going (given (table count offsets.now ids.now) weights.now (grid width height mode) noise.now) result (memory domains.new counts.new pending.new floats.new marks.new) }
{
    match run::inner::begin(
        0, 0, count, width, height, mode, weights, offsets, ids, noise, words, domains, counts,
        pending, floats, marks,
    ) {
        Ok(()) => lay_all(
            forbids, count, width, height, mode, weights, offsets, ids, noise, words, domains,
            counts, pending, floats, marks,
        ),
        Err(_) => false,
    }
}

// The pattern that a word chooses at a cell, or `count` where there is none.
fn pattern_at(count: usize, weights: &[u32], domains: &[u64], cell: usize, word: u32) -> usize {
    if let Some(domain) = domains.get(cell) {
        if let Ok(Some(pattern)) = choice::choice_of(count, weights, *domain, word) {
            return pattern;
        }
    }
    count
}

// Makes the choice that a word comes to; none where nothing is observed.
fn choose(
    word: u32,
    count: usize,
    width: usize,
    height: usize,
    mode: usize,
    weights: &[u32],
    offsets: &[u32],
    ids: &[u8],
    noise: &[u32],
    words: &[u32],
    domains: &mut [u64],
    counts: &mut [u8],
    pending: &mut [u32],
    floats: &mut [f32],
    marks: &mut [u8],
) -> Option<Made>
    requires { Standing (given (table count offsets.now ids.now) weights.now (grid width height mode) noise.now) (memory domains.old counts.old pending.old floats.old marks.old) }
    ensures { IfSome result (λ made. Going (given (table count offsets.now ids.now) weights.now (grid width height mode) noise.now) made.goes
        (memory domains.new counts.new pending.new floats.new marks.new)) }
{
    let sight = run::inner::sight(
        count, width, height, mode, weights, offsets, ids, noise, domains, counts, pending, floats,
        marks,
    )?;
    let cell = narrow(sight.cell);
    let pattern = narrow(pattern_at(count, weights, domains, sight.cell, word));
    let goes = lay(
        cell, pattern, 1, count, width, height, mode, weights, offsets, ids, noise, words, domains,
        counts, pending, floats, marks,
    );
    Some(Made {
        goes,
        cell,
        pattern,
        entropy: sight.entropy,
    })
}

// Makes a choice with each word, until one ends the run, and tells its cell, its pattern and its entropy. The answer is how many were made.
fn choose_all(
    count: usize,
    width: usize,
    height: usize,
    mode: usize,
    weights: &[u32],
    offsets: &[u32],
    ids: &[u8],
    noise: &[u32],
    words: &[u32],
    places: &mut [u32],
    entropies: &mut [f32],
    domains: &mut [u64],
    counts: &mut [u8],
    pending: &mut [u32],
    floats: &mut [f32],
    marks: &mut [u8],
) -> usize
    requires standing { Standing (given (table count offsets.now ids.now) weights.now (grid width height mode) noise.now) (memory domains.old counts.old pending.old floats.old marks.old) }
    requires words_len_bound { (length words.now ≤ 65536) × (length places.old ≡ 2 * length words.now) × (length entropies.old ≡ length words.now) }
{
    for k in 0..words.len() {
        let Some(made) = choose(
            words[k], count, width, height, mode, weights, offsets, ids, noise, words, domains,
            counts, pending, floats, marks,
        ) else {
            return k;
        };
        places[2 * k] = made.cell;
        places[2 * k + 1] = made.pattern;
        entropies[k] = made.entropy;
        if !made.goes {
            return k + 1;
        }
    }
    words.len()
}

// The choices of a run, of forbids that are lent as numbers: for each of at most 65,536 words a cell and a pattern, and an entropy. The answer is how many were made.
pub fn murghidossu_trace(
    forbids: &[u32],
    count: usize,
    width: usize,
    height: usize,
    mode: usize,
    weights: &[u32],
    offsets: &[u32],
    ids: &[u8],
    noise: &[u32],
    words: &[u32],
    places: &mut [u32],
    entropies: &mut [f32],
    domains: &mut [u64],
    counts: &mut [u8],
    pending: &mut [u32],
    floats: &mut [f32],
    marks: &mut [u8],
) -> usize {
    if 65536 < words.len() {
        return 0;
    }
    if places.len() != 2 * words.len() {
        return 0;
    }
    if entropies.len() != words.len() {
        return 0;
    }
    if !start(
        forbids, count, width, height, mode, weights, offsets, ids, noise, words, domains, counts,
        pending, floats, marks,
    ) {
        return 0;
    }
    choose_all(
        count, width, height, mode, weights, offsets, ids, noise, words, places, entropies,
        domains, counts, pending, floats, marks,
    )
}
