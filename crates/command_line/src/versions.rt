//! The version of the programs.

/// What `--version` prints of the program of this name: the version, which all three programs have
/// in common, that of a bureau's file, and the logic that the program is proved in. `cases/check`
/// compares that with what `rt version` prints when the program is tested. The kit's own name is
/// not there, since kits of one logic prove the same. A checked build has other words there, which
/// `tools/building/build-checked` puts in: it is not proved.
#[macro_export]
macro_rules! version_of {
    ($name:literal) => {
        concat!(
            $name,
            " 1.0.0 (files of version 4)\n",
            "Rattle logic dac8208d650f15bf\n"
        )
    };
}

/// The version of the bureau.
pub(crate) const VERSION: &str = crate::version_of!("bureau");
