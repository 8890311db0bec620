// What is proved of the definitions: each function's contract is a law.
ghost use Rattle.disk_tree.specs.Shown.{RowTestsAreRules, CountTestsAreRules, ReachedTestIsRule, ReadPartsShowRows, FaultlessPartsAreRuled};
ghost use Rattle.disk_tree.specs.Told.{FoundIsTheImages, FaultsAreTheImages};

/// The rules on the rows of a directory are tests on its rows.
pub fn row_tests_are_rules()
    ensures { RowTestsAreRules }
{}

/// The rules that count rows are tests by the numbers that were counted.
pub fn count_tests_are_rules()
    ensures { CountTestsAreRules }
{}

/// The rule on walks from the root is a test by the marks of what a walk reaches.
pub fn reached_test_is_rule()
    ensures { ReachedTestIsRule }
{}

/// What was read of an image shows its rows.
pub fn read_parts_show_rows()
    ensures { ReadPartsShowRows }
{}

/// Parts that reads gave, and that have no fault, show inodes that keep the rules.
pub fn faultless_parts_are_ruled()
    ensures { FaultlessPartsAreRuled }
{}

/// What is found on a disk that tells an image is the image's tree.
pub fn found_is_the_images()
    ensures { FoundIsTheImages }
{}

/// The first fault of what is read of a disk that tells an image is the image's first fault.
pub fn faults_are_the_images()
    ensures { FaultsAreTheImages }
{}
