ghost use Rattle.holders.specs.Cases.{Cases};

pub fn cases_stand()
    ensures { Cases }
{}
