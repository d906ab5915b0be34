ghost use Rattle.std.specs.Prelude.{◌≡◌, [], ◌∷◌, replicate, Some, Ok, Err, pos, negsuc};
ghost use Rattle.decimal18.specs.Bound.{scaled};
ghost use Rattle.type_a.specs.declared.readings.ReadingsFault.TheVariants.{TooFew, TooMany, Shape, Wide};
ghost use Rattle.type_a.specs.Tables.{single, readings_of};
ghost use Rattle.type_a.specs.Statistics.{mean_span, joint_span};
ghost use Rattle.type_a.specs.WorkedTables.{whole, eleven, voltage_and_current, span};

/// The means, variances and the covariance of the voltages and the currents of JCGM 100:2008, Table H.2: 4.999 V
/// and 19.661 mA, and deviations of 0.0032 V and 0.0095 mA with the correlation coefficient -0.36; and the
/// mean and the variance of eleven readings, ten times 1 and once 2.
pub fn worked_spans()
    ensures voltage { mean_span voltage_and_current 0 ≡ Some (span (pos 4999) 3 (pos 4999) 3) }
    ensures current { mean_span voltage_and_current 1 ≡ Some (span (pos 19661) 3 (pos 19661) 3) }
    ensures variance_of_voltage { joint_span voltage_and_current 0 0 ≡ Some (span (pos 103) 7 (pos 103) 7) }
    ensures variance_of_current { joint_span voltage_and_current 1 1 ≡ Some (span (pos 897) 7 (pos 897) 7) }
    ensures covariance { joint_span voltage_and_current 0 1 ≡ Some (span (negsuc 107) 7 (negsuc 107) 7) }
    ensures mean_of_eleven { mean_span eleven 0 ≡ Some (span (pos 10909090909090909) 16 (pos 109090909090909091) 17) }
    ensures variance_of_eleven { joint_span eleven 0 0 ≡ Some (span (pos 826446280991735537) 20 (pos 826446280991735538) 20) }
{}

/// Tables that are taken at the limits, and each refusal: the first that applies in the order of shape,
/// number of records and width.
pub fn worked_refusals()
    ensures two { readings_of (single (whole 999999999 ∷ whole 0 ∷ [])) ≡ Ok (single (whole 999999999 ∷ whole 0 ∷ [])) }
    ensures thousand { readings_of (single (replicate 1000 (whole 1))) ≡ Ok (single (replicate 1000 (whole 1))) }
    ensures eight { readings_of (replicate 2 (replicate 8 (whole 1))) ≡ Ok (replicate 2 (replicate 8 (whole 1))) }
    ensures nothing { readings_of [] ≡ Err TooFew }
    ensures one { readings_of (single (scaled (negsuc 999999999) 0 ∷ [])) ≡ Err TooFew }
    ensures thousand_and_one { readings_of (single (replicate 1001 (whole 1000000000))) ≡ Err TooMany }
    ensures empty { readings_of ([] ∷ []) ≡ Err (Shape 1) }
    ensures nine { readings_of (replicate 9 (whole 1) ∷ []) ≡ Err (Shape 1) }
    ensures other_length { readings_of ((whole 1000000000 ∷ []) ∷ (whole 1 ∷ whole 2 ∷ []) ∷ []) ≡ Err (Shape 2) }
    ensures great { readings_of (single (whole 1 ∷ scaled (negsuc 999999999) 0 ∷ [])) ≡ Err (Wide 2) }
    ensures fine { readings_of (single (scaled (pos 1) 7 ∷ whole 1 ∷ whole 99999999 ∷ whole 100000000 ∷ [])) ≡ Err (Wide 4) }
    ensures finest_of_all { readings_of ((whole 100000000 ∷ scaled (pos 1) 7 ∷ []) ∷ (whole 1 ∷ whole 1 ∷ []) ∷ []) ≡ Err (Wide 1) }
    ensures second_column { readings_of ((whole 1 ∷ whole 1 ∷ []) ∷ (whole 1 ∷ whole 1000000000 ∷ []) ∷ []) ≡ Err (Wide 2) }
    ensures all_fine { readings_of (single (scaled (pos 999999999999999) 36 ∷ scaled (negsuc 999999999999998) 36 ∷ []))
        ≡ Ok (single (scaled (pos 999999999999999) 36 ∷ scaled (negsuc 999999999999998) 36 ∷ [])) }
{}
