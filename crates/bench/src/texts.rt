//! The texts of the works.

/// A function put twice behind itself, fourteen times over: 16,384 calls of the innermost.
pub(crate) const TWICE: &str = "\
    let double = fun f -> fun x -> f (f x) in \
    double (double (double (double (double (double (double (double (double (double (double (double \
    (double (double (fun y -> y + 1)))))))))))))) 0";

/// The rule of a controller.
pub(crate) const RULE: &str = "\
    let low = if outside <= -50 then 320 else if outside <= 0 then 280 else 250 in \
    let want = \
    if room + 10 <= target then low + 40 else if target + 10 <= room then 200 else low \
    in \
    let clamp = fun x -> if 450 <= x then 450 else if x <= 180 then 180 else x in \
    if 80 <= coil then clamp (want + power) \
    else if hours <= 3 then clamp (want + back) \
    else want";

/// Sixty names, each from one ten names back, and a function that sums fifty of them, called twice.
pub(crate) const DEEP: &str = "\
    let a0 = coil + 0 in let a1 = outside + 1 in let a2 = room + 2 in let a3 = target + 3 in \
    let a4 = hours + 4 in let a5 = power + 5 in let a6 = flow + 6 in let a7 = back + 7 in \
    let a8 = coil + 8 in let a9 = outside + 9 in let a10 = a0 + 1 in let a11 = a1 + 1 in \
    let a12 = a2 + 1 in let a13 = a3 + 1 in let a14 = a4 + 1 in let a15 = a5 + 1 in \
    let a16 = a6 + 1 in let a17 = a7 + 1 in let a18 = a8 + 1 in let a19 = a9 + 1 in \
    let a20 = a10 + 1 in let a21 = a11 + 1 in let a22 = a12 + 1 in let a23 = a13 + 1 in \
    let a24 = a14 + 1 in let a25 = a15 + 1 in let a26 = a16 + 1 in let a27 = a17 + 1 in \
    let a28 = a18 + 1 in let a29 = a19 + 1 in let a30 = a20 + 1 in let a31 = a21 + 1 in \
    let a32 = a22 + 1 in let a33 = a23 + 1 in let a34 = a24 + 1 in let a35 = a25 + 1 in \
    let a36 = a26 + 1 in let a37 = a27 + 1 in let a38 = a28 + 1 in let a39 = a29 + 1 in \
    let a40 = a30 + 1 in let a41 = a31 + 1 in let a42 = a32 + 1 in let a43 = a33 + 1 in \
    let a44 = a34 + 1 in let a45 = a35 + 1 in let a46 = a36 + 1 in let a47 = a37 + 1 in \
    let a48 = a38 + 1 in let a49 = a39 + 1 in let a50 = a40 + 1 in let a51 = a41 + 1 in \
    let a52 = a42 + 1 in let a53 = a43 + 1 in let a54 = a44 + 1 in let a55 = a45 + 1 in \
    let a56 = a46 + 1 in let a57 = a47 + 1 in let a58 = a48 + 1 in let a59 = a49 + 1 in \
    let g = fun p -> p + a0 + a1 + a2 + a3 + a4 + a5 + a6 + a7 + a8 + a9 + a10 + a11 + a12 + a13 + \
    a14 + a15 + a16 + a17 + a18 + a19 + a20 + a21 + a22 + a23 + a24 + a25 + a26 + a27 + a28 + a29 \
    + a30 + a31 + a32 + a33 + a34 + a35 + a36 + a37 + a38 + a39 + a40 + a41 + a42 + a43 + a44 + \
    a45 + a46 + a47 + a48 + a49 in \
    g coil + g room";

/// Balanced sums of readings and numbers, compared and added.
pub(crate) const ARITH: &str = "\
    (if (((((outside + 14) + (target + 28)) + ((power + 42) + (back + 56))) + (((outside + 70) + \
    (target + 84)) + ((power + 98) + (back + 112)))) + ((((outside + 126) + (target + 140)) + \
    ((power + 154) + (back + 168))) + (((outside + 182) + (target + 196)) + ((power + 210) + (back \
    + 224))))) + (((((outside + 238) + (target + 252)) + ((power + 266) + (back + 280))) + \
    (((outside + 294) + (target + 308)) + ((power + 322) + (back + 336)))) + ((((outside + 350) + \
    (target + 364)) + ((power + 378) + (back + 392))) + (((outside + 406) + (target + 420)) + \
    ((power + 434) + (back + 448))))) \
    <=(((((outside + 462) + (target + 476)) + ((power + 490) + (back + 504))) + (((outside + 518) + \
    (target + 532)) + ((power + 546) + (back + 560)))) + ((((outside + 574) + (target + 588)) + \
    ((power + 602) + (back + 616))) + (((outside + 630) + (target + 644)) + ((power + 658) + (back \
    + 672))))) + (((((outside + 686) + (target + 700)) + ((power + 714) + (back + 728))) + \
    (((outside + 742) + (target + 756)) + ((power + 770) + (back + 784)))) + ((((outside + 798) + \
    (target + 812)) + ((power + 826) + (back + 840))) + (((outside + 854) + (target + 868)) + \
    ((power + 882) + (back + 896))))) \
    then 5 + coil else room + 7) \
    + (((((outside + 910) + (target + 924)) + ((power + 938) + (back + 952))) + (((outside + 966) + \
    (target + 980)) + ((power + 994) + (back + 8)))) + ((((outside + 22) + (target + 36)) + \
    ((power + 50) + (back + 64))) + (((outside + 78) + (target + 92)) + ((power + 106) + (back + \
    120)))) \
    + (if (((outside + 134) + (target + 148)) + ((power + 162) + (back + 176))) + (((outside + 190) + \
    (target + 204)) + ((power + 218) + (back + 232))) \
    <= 2000 then 1 else 2))";

/// Numbers as functions: 54 times 45, worked out by calls alone.
pub(crate) const CHURCH: &str = "\
    let three = fun f -> fun x -> f (f (f x)) in \
    let add = fun m -> fun n -> fun f -> fun x -> m f (n f x) in \
    let times = fun m -> fun n -> fun f -> m (n f) in \
    let six = add three three in \
    let nine = times three three in \
    times (times nine six) (add nine (times six six)) (fun y -> y + 1) hours";
