ghost use Rattle.std.specs.Prelude.{◌≡◌, List, String};
ghost use Rattle.std.specs.Global.{Global};
ghost use Rattle.job_files.specs.Contents.{Holding};
ghost use Rattle.job_files.specs.Files.{JobFile};
ghost use Rattle.sodac_cli.specs.Due.{Due};
ghost use Rattle.job_status.specs.declared.status.Status.{Status as Ended};

use flow_solve::least_plans_meet;
use job_program::one_program_is_spoken_of;
use param_lines::params_are_one;
use sim_course::one_fault_is_met_first;

/// No two statuses are due, and none over two lists of files.
pub fn only_one_is_due()
    ensures { (holding : Holding) (words : List (String Global)) (files others : List JobFile) (one other : Ended)
        → Due holding words files one → Due holding words others other → (one ≡ other) × (files ≡ others) }
{
    one_program_is_spoken_of();
    params_are_one();
    one_fault_is_met_first();
    least_plans_meet()
}
