// What C and Rust link of ritz: the kernel that the benchmark and the comparison with the oracle call. The caller sees that k is from 9 to 15.
#![tactic(auto)]

ghost use Rattle.std.specs.Prelude.{◌≡◌};
ghost use Rattle.definition.specs.Requirements.{Width};
ghost use Rattle.ritz.specs.Matrices.{jacobi_held};

#[unsafe(no_mangle)]
pub extern "C" fn ritz_jacobi_eigen(k: usize, matrix: &mut [f64; 225], vectors: &mut [f64; 225])
    requires { Width k }
    ensures matrix_after { matrix.new ≡ (jacobi_held k matrix.old).matrix }
    ensures vectors_after { vectors.new ≡ (jacobi_held k matrix.old).vectors }
{
    ritz::jacobi_in_place(matrix, vectors, k);
}
