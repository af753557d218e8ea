// What a call answers.
use sheet_steps::Worst;

// Quads by steps of the scaled Jacobian, those without metrics last; the least scaled Jacobian and the largest cosine.
#[derive(Clone, Copy)]
pub struct Sheet {
    pub counts: [usize; 11],
    pub jacobian: Worst,
    pub cosine: Worst,
}
