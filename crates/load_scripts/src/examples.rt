//! Scripts of the generator, by computation.
ghost use Rattle.std.specs.Prelude.{◌≡◌, [], ◌++◌, codes};
ghost use Rattle.load_scripts.specs.Scripts.{number, numbering};

/// The second session gives the fourth of its keys a number and takes it back.
pub fn scripts()
    ensures none { numbering 0 0 ≡ [] }
    ensures first { numbering 1 1 ≡ codes "[:transact [{:load/key \"1-0\" :load/num 3}]]\n" }
    ensures fourth { numbering 1 4 ≡ numbering 1 3
        ++ (codes "[:transact [{:load/key \"1-3\" :load/num 760}]]\n"
        ++ codes "[:transact [[:db/retract [:load/key \"1-3\"] :load/num]]]\n") }
    ensures numbers { number 3 4999 ≡ 90 }
{}
